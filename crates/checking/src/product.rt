// A cell and a watch side by side: a run goes through both at once.
// The table, which changes, stays beside them: lent for writing, it could not be copied with them.
ghost use Rattle.std.specs.Prelude.{◌≡◌, true, if◌then◌else◌, None};
ghost use Rattle.levels.specs.Units.{blamed_start, onward as moved};
ghost use Rattle.model.specs.Keys.{configuration_key};

use model::{Cell, Configuration, Moment, Reading, Watch, read};

#[derive_where(Clone, Copy)]
pub(crate) struct Product<'a, C, W> {
    pub(crate) cell: &'a C,
    pub(crate) watch: &'a W,
}

impl<'a, C: Cell, W: Watch> Product<'a, C, W> {
    // The configuration of a run that began with the code `first` and brought the watch to `state`, after one more
    // code; none where that makes it unpermitted.
    pub(crate) fn onward(
        &self,
        first: u64,
        start: &Reading,
        state: &W::State,
        code: u64,
    ) -> Option<Configuration<W::State>>
        ensures { (C.Cell.cell self.now.cell.now).state code ≡ true → start.now ≡ (C.Cell.cell self.now.cell.now).reads first → result ≡ moved (C.Cell.cell self.now.cell.now) (W.Watch.watch self.now.watch.now) (configuration_key W.State.Key.kind).alike 0 first state.now code }
    {
        let Reading { label, values } = read(self.cell, code)?;
        let starts = start.values;
        let moment = Moment {
            label,
            values,
            starts,
        };
        let state = self.watch.step(state, &moment)?;
        Some(Configuration {
            first,
            last: code,
            state,
        })
    }

    // The configuration of a start's run of one state, none where that is not permitted.
    pub(crate) fn start(&self, code: u64) -> Option<Configuration<W::State>>
        ensures { result ≡ (if (C.Cell.cell self.now.cell.now).state code then moved (C.Cell.cell self.now.cell.now) (W.Watch.watch self.now.watch.now) (configuration_key W.State.Key.kind).alike 0 code (W.Watch.watch self.now.watch.now).first code else None) }
    {
        let start = read(self.cell, code)?;
        self.onward(code, &start, &self.watch.first(), code)
    }

    // The first start whose run of one state is not permitted.
    pub(crate) fn unpermitted_start(&self) -> Option<u64>
        ensures { result ≡ blamed_start (C.Cell.cell self.now.cell.now) (W.Watch.watch self.now.watch.now) (configuration_key W.State.Key.kind).alike 0 (C.Cell.cell self.now.cell.now).starts }
    {
        (0..self.cell.start_count())
            .filter_map(|place| self.cell.start_at(place))
            .find(|code| self.start(*code).is_none())
    }
}
