/// The objects that a run is handed: all that it reads, sends by, stores in and asks. It is written out where the references are,
/// for of a call that made it no caller could say what they come to.
#[derive(Drop)]
pub struct Outside<'a, 'b, 'c, 'd, 'e, 'f, F, W, D, K, B> {
    pub folder: &'a mut F,
    pub wires: &'b mut Vec<W>,
    pub a: &'c mut D,
    pub b: &'d mut D,
    pub clock: &'e mut K,
    pub bell: &'f mut B,
}
