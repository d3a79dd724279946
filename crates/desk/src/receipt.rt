use spm::Reply;

/// What a call was answered: its place among all calls of the desk, from 0, who called, registers 0
/// to 7 of the call, and the reply.
#[derive(Drop)]
pub struct Receipt {
    pub place: u64,
    pub caller: u16,
    pub regs: [u64; 8],
    pub reply: Reply,
}
