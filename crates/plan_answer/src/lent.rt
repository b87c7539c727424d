// What a plan is lent besides its input. Only the tape is read afterwards.

#[derive(Default, Drop)]
pub struct Lent<'a> {
    pub finder: &'a mut [u32],
    pub hidden: &'a mut [u32],
    pub tape: &'a mut [u8],
    pub counts: &'a mut [u64],
    pub marks: &'a mut [u8],
}
