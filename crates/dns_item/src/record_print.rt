//! Records in presentation format (RFC 1035 section 5.1).
use crate::record::Record;
use dns_data::RecordData;
use dns_print::write_value;
use std::fmt;

/// The owner with a final dot, the TTL in seconds, the class, the type and the RDATA, separated by one
/// space.
impl<N: fmt::Display, D: RecordData + fmt::Display> fmt::Display for Record<N, D> {
    ghost use Rattle.dns_item.specs.RecordPrinting.{record_text};

    ghost output = { record_text N.output D.rtype_of D.output };

    ghost styled_output = { λ r _. record_text N.output D.rtype_of D.output r };

    fn fmt<W: fmt::Write>(&self, f: &mut fmt::Formatter<W>) -> fmt::Result {
        write_value(
            f,
            format_args!(
                "{}. {} {} {} {}",
                self.owner(),
                self.ttl().as_secs(),
                self.class(),
                self.rtype(),
                self.data()
            ),
        )
    }
}
