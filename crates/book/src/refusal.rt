// Why a book of bytes is refused, with the number that C reads.
ghost use Rattle.std.specs.Prelude.{◌≡◌};
ghost use Rattle.book.specs.Refusal.{number_of};

#[derive(Clone, Copy, Debug, PartialEq, Eq)]
pub enum BookRefusal {
    // The book, or what is read beside it, has another length.
    WrongLength = 2,
    // A number is outside its range.
    OutOfRange = 3,
}

impl From<BookRefusal> for u64 {
    ghost from_gives = { λ refusal n. n ≡ number_of refusal };

    fn from(refusal: BookRefusal) -> u64 {
        refusal as u64
    }
}
