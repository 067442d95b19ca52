// The texts of P1 to P8, of which T10 speaks.
ghost use Rattle.output.specs.Writer.{Puts};
ghost use Rattle.listed.specs.Cases.{p1};
ghost use Rattle.listed.specs.Texts.{proved_text};

use output::Writer;

// Document 01's job, of P1 and of P8.
fn put_example(w: &mut Writer<'_>)
    ensures { Puts w.old p1 w.new }
{
    w.put_part(
        b"label episode\nlabel mix\nlabel master\nquery episode.(mix|master)\nlist episodes episode\nlist mixes mix\n",
    );
}

// By their numbers; any other has no text.
pub fn put_proved(w: &mut Writer<'_>, number: u64)
    ensures { Puts w.old (proved_text number) w.new }
{
    match number {
        1 => put_example(w),
        2 => w.put_part(
            b"label a\nlabel b\nlabel c\nquery a.(b.a|c)*\nlist e1 a\nlist e2 a.c*.b\nlist e3 c\n",
        ),
        3 => w.put_part(
            b"label a\nlabel b\nlabel c\nquery a.(b.a|c)*\nlist e1 a\nlist e2 a.c*.b\n",
        ),
        4 => w.put_part(b"label a\nquery a*\nlist l a*\n"),
        5 => w.put_part(b"label a\nquery a\nlist l a*\n"),
        6 => w.put_part(b"label a\nquery a*\n"),
        7 => w.put_part(b"label a\nquery a.a.a\nlist l a\nlist m a?\n"),
        8 => put_example(w),
        _ => (),
    }
}
