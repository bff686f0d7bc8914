// A cabinet: the sealed sheet, how many fields it has, the greatest value of each field, and how many bytes of the audit its
// calls have written. Its span begins at field 0, so count and tops stand alone. Register and audit are no part of it: both are the caller's, who hands them in at each call. That the
// register stays over the same entries (`Lent`) is said of before and after a call, so no type can hold it.
#[derive(Drop)]
pub struct Cabinet {
    pub(crate) sheet: [u8; 4],
    pub(crate) count: u8,
    pub(crate) tops: [u8; 4],
    pub(crate) used: usize,
}
