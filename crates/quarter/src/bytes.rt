// The bytes that a quarter is made of, and those of a request's block: board_spec's specs/Layout.antt says where each number stands.

pub type Quarter = [u8; 6144];

pub type Block = [u8; 640];
