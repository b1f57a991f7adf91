//! Starting a response to a query (RFC 1035 section 4.1.1, RFC 6891 section 6.1).
ghost use Rattle.std.specs.Prelude.{◌≡◌, IfOk, option_map};
ghost use Rattle.dns_code.specs.Header.{fields};
ghost use Rattle.dns_edns_builder.specs.Gathered.{gathered};
ghost use Rattle.dns_item.specs.OptRecord.{opt_item};
ghost use Rattle.dns_read.specs.Message.{message_octets};
ghost use Rattle.dns_build.specs.State.{InBuilder};
ghost use Rattle.dns_build.specs.BuilderStates.{InEach};
ghost use Rattle.dns_build.specs.Answers.{readable_questions, GivesAnswer};
ghost use Rattle.dns_build.specs.Responses.{builder_of, opt_for, opt_to, responding, response_header, response_rcode};

use crate::answer::push_questions;
use crate::builder::{AnswerBuilder, Builder};
use crate::push_error::PushError;
use crate::stage::AtBuilder;
use dns_code::Header;
use dns_edns_builder::OptBuilder;
use dns_iana::{OptRcode, Rcode};
use dns_item::OptRecord;
use dns_octets::Octets;
use dns_read::Message;
use dns_reply::has_many_opts;
use dns_wire::Composer;
use std::alloc::Global;

impl<T: Composer> Builder<T, AtBuilder> {
    /// Starts a response to a query: the builder at the answer section, and an OPT record if the
    /// query has one (RFC 6891 section 6.1.1). A message with QR set gets a response, too, so a
    /// server drops it before.
    ///
    /// Sets QR and the rcode, and copies ID, opcode, RD and CD from the query. All other header
    /// bits are clear (RFC 1035 section 4.1.1). By CD a client asks a recursive server not to
    /// validate, and that server copies it (RFC 4035 section 3.2.2). A server that validates
    /// nothing clears CD afterwards (section 3.1.6). Then pushes the query's questions up to the
    /// first malformed one. A malformed question is no error.
    ///
    /// Two errors of the query come before `rcode`: the rcode is `OptRcode::FORMERR` if the query
    /// has more than one OPT record (RFC 6891 section 6.1.1), or else `OptRcode::BADVERS` if the
    /// version of its OPT record is above 0 (section 6.1.3). Its OPT record is the one that
    /// `Message::opt` returns.
    ///
    /// The OPT record of the response has version 0 and the query's DO (RFC 3225 section 3). The
    /// caller sets its UDP payload size and options.
    ///
    /// `push_opt`, of the builder or of a `ReservedBuilder`, pushes the response's OPT record at
    /// the additional section. The header then takes the rcode of the record, so
    /// `OptBuilder::set_rcode` sets a later one, such as an error.
    ///
    /// Returns the error of the first push that fails. The builder is dropped then. A query of many
    /// questions can exceed the limit: then send no response, or FORMERR without them.
    pub fn respond<Octs: Octets>(
        self,
        alloc: Global,
        query: &Message<Octs>,
        rcode: Rcode,
    ) -> Result<(AnswerBuilder<T>, Option<OptBuilder>), PushError>
        ensures answer { InEach InBuilder T.rule self (λ s.
            let b = message_octets query.now in
            GivesAnswer T.capacity T.grows T.rule
            (responding rcode b s) (readable_questions b) (builder_of result)) }
        ensures opt { IfOk result (λ response.
            option_map gathered response.1 ≡ opt_to rcode (message_octets query.now)) }
    {
        let asked = query.opt();
        let rcode = response_rcode(has_many_opts(query), &asked, rcode);
        let header = response_header(query.header(), rcode);
        let mut builder = self;
        builder.set_header(header);
        let mut questions = builder.question();
        match push_questions(&mut questions, query) {
            Ok(()) => {
                let opt = response_opt(alloc, &asked, header, rcode);
                Ok((questions.answer(), opt))
            }
            Err(error) => Err(error),
        }
    }
}

/// The rcode of a response to a query that has many OPT records or not, and the one `asked`.
fn response_rcode(many_opts: bool, asked: &Option<OptRecord<&[u8]>>, rcode: Rcode) -> OptRcode
    ensures { result ≡ response_rcode rcode many_opts (option_map opt_item asked.now) }
{
    if many_opts {
        return OptRcode::FORMERR;
    }
    match asked {
        Some(opt) => {
            if opt.version() == 0 {
                OptRcode::from(rcode)
            } else {
                OptRcode::BADVERS
            }
        }
        None => OptRcode::from(rcode),
    }
}

/// The header of a response to a query with the header `asked`.
fn response_header(asked: Header, rcode: OptRcode) -> Header
    ensures { fields result ≡ response_header rcode (fields asked) }
{
    let mut header = Header::new();
    header.set_id(asked.id());
    header.set_qr(true);
    header.set_opcode(asked.opcode());
    header.set_rd(asked.rd());
    header.set_cd(asked.cd());
    header.set_rcode(rcode.rcode());
    header
}

/// The OPT record of a response with this header and rcode, if the query has the one `asked`.
fn response_opt(
    alloc: Global,
    asked: &Option<OptRecord<&[u8]>>,
    header: Header,
    rcode: OptRcode,
) -> Option<OptBuilder>
    ensures { option_map gathered result
        ≡ option_map (opt_for rcode (fields header)) (option_map opt_item asked.now) }
{
    match asked {
        Some(asked) => {
            let mut opt = OptBuilder::new(alloc, header);
            opt.set_dnssec_ok(asked.dnssec_ok());
            opt.set_rcode(rcode);
            Some(opt)
        }
        None => None,
    }
}
