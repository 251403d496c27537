// What crosses to C: two structs, since the signature of an exported function has no struct with a const parameter.
#[repr(C)]
pub struct Block {
    pub bytes: [u8; 16],
}

#[repr(C)]
pub struct Message {
    pub bytes: [u8; 80],
}
