// The program `cases`: document 01's cases in its order ("Jobs on each side of a limit"), each with its printed form; the counts beyond
// Find's limits; P8 with its marks.
#![tactic(auto)]

mod count;
mod counted;
mod explore;
mod images;
mod label_tables;
mod marks;
mod run;

use count::Limited;
use counted::show_count;
use listed::Listed;
use marks::show_marks;
use run::run;
use std::io;

fn main(rt: HostRuntime) -> io::Result<()> {
    let to = rt.stdout();
    run(to, b"P1", Listed::Proved(1), 11)?;
    run(to, b"P1", Listed::Proved(1), 10)?;
    run(to, b"P2", Listed::Proved(2), 4096)?;
    run(to, b"P3", Listed::Proved(3), 4096)?;
    run(to, b"P4", Listed::Proved(4), 4096)?;
    run(to, b"P5", Listed::Proved(5), 4096)?;
    run(to, b"P6", Listed::Proved(6), 4096)?;
    run(to, b"62 a's", Listed::Sequence(62), 4096)?;
    run(to, b"63 a's", Listed::Sequence(63), 4096)?;
    show_count(to, Listed::Sequence(63), Limited::Standings)?;
    run(to, b"64 a's", Listed::Sequence(64), 4096)?;
    run(to, b"(a|b)*.a followed by 4", Listed::Followed(4), 4096)?;
    run(to, b"(a|b)*.a followed by 5", Listed::Followed(5), 4096)?;
    show_count(to, Listed::Followed(5), Limited::Standings)?;
    run(to, b"P7", Listed::Proved(7), 4096)?;
    run(to, b"20 a's, lists a and a?", Listed::Optional(20), 4096)?;
    run(to, b"21 a's, lists a and a?", Listed::Optional(21), 4096)?;
    show_count(to, Listed::Optional(21), Limited::States)?;
    run(
        to,
        b"62 a's, lists a and 14 a's",
        Listed::Joined(62, 14),
        4096,
    )?;
    run(
        to,
        b"62 a's, lists a and 15 a's",
        Listed::Joined(62, 15),
        4096,
    )?;
    run(to, b"P8", Listed::Proved(8), 4096)?;
    show_marks(to)
}
