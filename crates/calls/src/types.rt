// A call that stands in bytes. specs/Calls.antt says what each stands for.

// Blocks are named by their place: `length` bytes from index `from`. A turn's record buffer is `length` zero bytes.
#[derive(Clone, Copy)]
pub enum Call {
    Submit {
        queue: u64,
        kind: u64,
        n: u64,
        from: usize,
        length: usize,
    },
    Turn {
        length: usize,
    },
    Look {
        queue: u64,
    },
}
