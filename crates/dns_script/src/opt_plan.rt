//! What a call of a script sets and adds on an OPT builder.
ghost use Rattle.std.specs.Prelude.{◌≡◌, OnOk, map};
ghost use Rattle.dns_edns.specs.OptData.{option_of};
ghost use Rattle.dns_edns_builder.specs.Gathered.{gathered};
ghost use Rattle.dns_script.specs.OptPlans.{with_fields, with_options, gathered_size, AddsOptions, CarriesOut};

use dns_edns::UnknownOptData;
use dns_edns_builder::OptBuilder;
use dns_iana::OptRcode;
use dns_octets::AppendError;

/// What a list of calls asks to push as an OPT record (RFC 6891 section 6.1).
#[derive(Debug, Drop)]
pub struct OptPlan {
    /// The UDP payload size that the sender can receive, in octets.
    pub udp_payload_size: u16,
    /// The extended RCODE. If `None`, the header's RCODE stays.
    pub rcode: Option<OptRcode>,
    /// The EDNS version.
    pub version: u8,
    /// Whether the sender accepts DNSSEC records: the DO bit (RFC 3225).
    pub dnssec_ok: bool,
    /// The options, in order.
    pub options: Vec<UnknownOptData<Vec<u8>>>,
}

impl OptPlan {
    /// Sets the fields of an OPT builder, then adds the options until one fails.
    pub(crate) fn gather(&self, builder: &mut OptBuilder) -> Result<(), AppendError>
        ensures { CarriesOut self.now builder.old builder.new result }
    {
        self.set_fields(builder);
        push_options(&self.options, builder)
    }

    fn set_fields(&self, builder: &mut OptBuilder)
        ensures { gathered builder.new ≡ with_fields self.now (gathered builder.old) }
    {
        builder.set_udp_payload_size(self.udp_payload_size);
        if let Some(rcode) = self.rcode {
            builder.set_rcode(rcode);
        }
        builder.set_version(self.version);
        builder.set_dnssec_ok(self.dnssec_ok);
    }
}

fn push_options(
    options: &[UnknownOptData<Vec<u8>>],
    builder: &mut OptBuilder,
) -> Result<(), AppendError>
    ensures done { OnOk result (gathered builder.new
        ≡ with_options (map option_of options.now) (gathered builder.old)) }
    ensures adds { AddsOptions (gathered_size (gathered builder.old))
        (map option_of options.now) result }
{
    for option in options {
        builder.push(option)?;
    }
    Ok(())
}
