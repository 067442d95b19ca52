// A table of links in range, and where the links of each recording begin.
ghost use Rattle.answering.specs.Links.{InRange};
ghost use Rattle.answering.specs.LinkBegins.{LinkBegins};

// The triples, over so many symbols, which are labels or lists, and recordings, and where the triples that leave each recording begin.
#[derive(Clone, Copy)]
pub(super) struct Indexed<'a> {
    pub(super) symbols: u64,
    pub(super) recordings: u64,
    pub(super) table: &'a [u16],
    pub(super) begins: &'a [u16],
    ghost in_range: { InRange symbols recordings table.now },
    ghost begun: { LinkBegins table.now recordings begins.now },
}
