// The limits of sources and images: "source 65,536 bytes; body 1,048,576; comments 8,192; records 64 deep, the tree being 1".
pub const MAX_SOURCE: usize = 65536;

pub const MAX_BODY: usize = 1048576;

pub const MAX_COMMENTS: usize = 8192;

pub const MAX_RECORDS_DEEP: u32 = 64;
