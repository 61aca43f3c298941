// Why `replay` refuses.

// The board's length is not 24,584.
#[derive(Clone, Copy, Debug, PartialEq, Eq)]
pub struct BadBoard;
