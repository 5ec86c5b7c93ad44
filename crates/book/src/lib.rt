// The book of figures: where a row stands, the row adder, postings, and the figure in a book of bytes.
#![tactic(auto)]

ghost use Rattle.std.specs.Prelude.{◌≡◌};
ghost use Rattle.book.specs.Row.{back};

pub mod figure;
pub mod place;
pub mod posting;
pub mod refusal;
pub mod row;

// A series comes into a row, or goes out of it.
#[derive(Clone, Copy)]
pub enum Way {
    In,
    Out,
}

impl Way {
    pub fn opposite(self) -> Way
        ensures { result ≡ back self }
    {
        match self {
            Way::In => Way::Out,
            Way::Out => Way::In,
        }
    }
}
