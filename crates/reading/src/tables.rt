// The tables that a text is read into, as they are lent.
use syntax::Span;

#[derive(Drop)]
pub struct Tables<'a> {
    // The labels' names from 0 on, the lists' from 32 on.
    pub names: &'a mut [Span; 48],
    pub follow: &'a mut [u64],
    pub enter: &'a mut [u64],
    pub sizes: &'a mut [u64; 17],
    pub accepting: &'a mut [u64; 17],
}
