// The rows that are lent to the library.
#[derive(Drop)]
pub struct GivenRows<'a> {
    pub start: &'a mut [u16],
    pub end: &'a mut [u16],
    pub extra: &'a mut [i16],
    pub matrix: &'a mut [i16],
}

// The ten that it writes.
#[derive(Drop)]
pub struct WrittenRows<'a> {
    pub offset: &'a mut [u32],
    pub run: &'a mut [u16],
    pub first: &'a mut [u16],
    pub last: &'a mut [u16],
    pub left: &'a mut [u16],
    pub cost: &'a mut [i32],
    pub next: &'a mut [u16],
    pub word_offset: &'a mut [u32],
    pub word_id: &'a mut [u32],
    pub word_kind: &'a mut [u8],
}
