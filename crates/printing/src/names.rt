// Lists and labels by their names, as the job spells them.
ghost use Rattle.std.specs.Prelude.{[], ◌∷◌, ◌≡◌, get_or, take};
ghost use Rattle.syntax.specs.Resolve.{names_at};
ghost use Rattle.reading.specs.Text.{space};
ghost use Rattle.output.specs.Writer.{Puts};
ghost use Rattle.printing.specs.Lines.{spelled, named_line};

use output::Writer;
use syntax::{Names, Span};

// The places of the first names of a table.
pub fn first_names(names: &[Span], count: u64) -> &[Span]
    ensures { result.now ≡ take count names.now }
{
    &names[..(count as usize).min(names.len())]
}

// A space and the name at a place of a table.
fn put_name(w: &mut Writer<'_>, names: Names<'_>, place: u8)
    ensures { Puts w.old (space ∷ get_or (names_at names.entry.text.now names.entry.spans.now) place []) w.new }
{
    w.put(b' ');
    let i = usize::from(place);
    if i < names.spans.len() {
        w.put_part(names.spans[i].of(names.text));
    }
}

// The names at these places of a table, each after a space.
fn put_names(w: &mut Writer<'_>, names: Names<'_>, places: &[u8])
    ensures { Puts w.old (spelled (names_at names.entry.text.now names.entry.spans.now) places.now) w.new }
{
    for &place in places {
        put_name(w, names, place);
    }
}

// A line of a word and names.
pub fn put_named_line(w: &mut Writer<'_>, word: &[u8], names: Names<'_>, places: &[u8])
    ensures { Puts w.old (named_line word.now (names_at names.entry.text.now names.entry.spans.now) places.now) w.new }
{
    w.put_part(word);
    put_names(w, names, places);
    w.put(b'\n');
}
