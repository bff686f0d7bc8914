use crate::folders::Folder;
use crate::views::View;
use refusal::Refusal;

// A call that reaches a cabinet, with what it hands in.
#[derive(Clone, Copy)]
pub enum Call<'a, B> {
    Enrol(Folder<B>),
    Ask { code: u16, question: &'a [u8] },
    Look { code: u16 },
}

// What a call returned.
#[derive(Clone, Copy)]
pub enum Return {
    Enrolled(Result<usize, Refusal>),
    Asked(Result<u8, Refusal>),
    Looked(Result<View, Refusal>),
}
