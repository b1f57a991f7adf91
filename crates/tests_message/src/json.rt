//! A JSON object as RFC 8259 has it. The expected text is that of Python's `json.dumps`, without
//! spaces.
ghost use Rattle.std.specs.Prelude.{◌++◌, None};

use dns_print::TextWriter;
use json_print::{
    PrintText, begin_object, write_boolean_member, write_number_member, write_string,
    write_string_member,
};
use std::fmt;

/// Two texts, printed one after the other.
#[derive(Clone, Copy)]
struct Both<'a>(&'a str, &'a str);

impl PrintText for Both<'_> {
    ghost printed = { λ both. both.0.now ++ both.1.now };

    #[tactic(auto, using(dns_print::proofs::theory::Prints::prints))]
    fn print_text<T: TextWriter>(&self, writer: &mut T) -> fmt::Result {
        writer.write_text(self.0)?;
        writer.write_text(self.1)
    }
}

/// An object with members of each kind. Arrays are in what `dnsview --json` prints.
#[derive(Clone, Copy)]
struct Example<'a>(Both<'a>);

impl fmt::Display for Example<'_> {
    ghost output = { λ _. None };

    ghost styled_output = { λ _ _. None };

    fn fmt<W: fmt::Write>(&self, f: &mut fmt::Formatter<W>) -> fmt::Result {
        begin_object(f, "string")?;
        write_string(f, &self.0)?;
        write_number_member(f, "number", u64::MAX)?;
        write_boolean_member(f, "fal\"se", false)?;
        write_string_member(f, "\u{e9}", &self.0)?;
        f.write_text("}")
    }
}

#[test]
fn prints_members(rt: HostRuntime) {
    let example = Example(Both("a\"\\/\u{8}\u{c}\n", "\r\t\u{0}\u{1f} \u{7f}\u{20ac}"));
    let text = format!(in rt.alloc(); "{example}").expect(&rt, "memory");
    let expected = "{\"string\":\"a\\\"\\\\/\\b\\f\\n\\r\\t\\u0000\\u001f \u{7f}€\",\
        \"number\":18446744073709551615,\"fal\\\"se\":false,\
        \"é\":\"a\\\"\\\\/\\b\\f\\n\\r\\t\\u0000\\u001f \u{7f}€\"}";
    assert_eq!(rt; text.as_str(), expected);
}
