// The candidate rows as a caller lends them (document 01, "What comes in"): parallel rows, as they come from C.
#[derive(Clone, Copy)]
pub struct Candidates<'a> {
    pub start: &'a [u16],
    pub end: &'a [u16],
    pub kind: &'a [u8],
    pub extra: &'a [i16],
    // Ten bytes each.
    pub entry: &'a [u8],
}
