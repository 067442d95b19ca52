// The lists' names in a kept file.
ghost use Rattle.syntax.specs.Resolve.{names_at};
ghost use Rattle.output.specs.Writer.{Puts};
ghost use Rattle.keeping.specs.Write.{one_name, name_bytes};

use output::Writer;
use syntax::Names;

// A length byte and the name; a name of a job has at most 16 bytes.
fn put_name(w: &mut Writer<'_>, name: &[u8])
    ensures { Puts w.old (one_name name.now) w.new }
{
    w.put((name.len() % 256) as u8);
    w.put_part(name);
}

pub fn put_names(w: &mut Writer<'_>, names: Names<'_>)
    ensures { Puts w.old (name_bytes (names_at names.entry.text.now names.entry.spans.now)) w.new }
{
    let Names { text, spans } = names;
    for span in spans {
        put_name(w, span.of(text));
    }
}
