//! Questions in presentation format.
ghost use Rattle.std.specs.Prelude.{IfSome};
ghost use Rattle.dns_print.specs.Printing.{PrintsOnOk};
ghost use Rattle.dns_item.specs.Question.{question_text};

use crate::question::Question;
use dns_print::{TextWriter, write_value};
use std::fmt;

/// Prints the name, a dot, a tab, the type, a tab and the class.
fn write_question<W: TextWriter, N: fmt::Display>(f: &mut W, question: &Question<N>) -> fmt::Result
    ensures { IfSome (question_text N.output question.now) (λ text.
        PrintsOnOk W.takes f.old result text f.new) }
{
    let name = question.qname();
    let rtype = question.qtype();
    let class = question.qclass();
    write_value(f, format_args!("{name}.\t{rtype}\t{class}"))
}

/// The name, a dot, a tab, the type, a tab and the class.
impl<N: fmt::Display> fmt::Display for Question<N> {
    ghost output = { question_text N.output };

    ghost styled_output = { λ question _. question_text N.output question };

    fn fmt<W: fmt::Write>(&self, f: &mut fmt::Formatter<W>) -> fmt::Result {
        write_question(f, self)
    }
}
