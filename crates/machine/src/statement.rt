// What stands at a label: one statement, with the labels that it goes on to.
use text::Register;

// Expressions are named by their places among the program's: room for them is reserved before a text is read.
#[derive(Clone, Copy)]
pub enum Statement {
    // `a = A;`
    Set {
        register: Register,
        value: usize,
        next: u8,
    },
    // `sense a;`
    Sense {
        register: Register,
        next: u8,
    },
    // `;` and `break;`
    Go {
        next: u8,
    },
    // `if` and `while`
    Branch {
        test: usize,
        yes: u8,
        no: u8,
    },
}
