// What has been declared: the ranges by register, the number of settings so far, and which registers may still be declared.
ghost use Rattle.std.specs.Prelude.{◌≡◌, ℕ, ◌≤◌, None, map, length, slice_index_or};
ghost use Rattle.traces.specs.Codes.{settings as settings_of};
ghost use Rattle.traces.specs.Programs.{range as range_of};

use traces::Range;

#[derive(Clone, Copy)]
pub struct Header {
    pub ranges: [Option<Range>; 6],
    pub settings: usize,
    // Registers from this one on may be declared.
    pub next: usize,
    ghost six: { length ranges ≡ 6 },
    ghost product: { settings ≡ settings_of (map range_of ranges) },
    ghost few: { settings ≤ 65536 },
    ghost within: { next ≤ 6 },
    ghost fresh: { (j : ℕ) → next ≤ j → slice_index_or ranges j None ≡ None },
}
