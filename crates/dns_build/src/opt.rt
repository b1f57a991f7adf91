//! Pushing OPT records (RFC 6891 section 6.1).
ghost use Rattle.std.specs.Prelude.{◌≡◌, [], OnErr};
ghost use Rattle.std.specs.Fn.{FnOnceReturnsAtMut};
ghost use Rattle.dns_name.specs.NameReading.{name_labels};
ghost use Rattle.dns_code.specs.Header.{fields};
ghost use Rattle.dns_edns.specs.OptHeader.{ttl_in};
ghost use Rattle.dns_edns.specs.Options.{encode_options};
ghost use Rattle.dns_data.specs.Opt.{opt_octets};
ghost use Rattle.dns_edns_builder.specs.Gathered.{IsGathered, gathered};
ghost use Rattle.dns_item.specs.Record.{owner_of, class_of, ttl_of, data_of};
ghost use Rattle.dns_build.specs.State.{InAdditional};
ghost use Rattle.dns_build.specs.BuilderStates.{InEach};
ghost use Rattle.dns_build.specs.Opt.{with_rcode, PushesOpt, PushesOptRecord};

use crate::builder::Builder;
use crate::push_error::PushError;
use crate::stage::AtAdditional;
use dns_code::{Header, Ttl};
use dns_data::Opt;
use dns_edns_builder::OptBuilder;
use dns_iana::Rcode;
use dns_item::Record;
use dns_name::Name;
use dns_octets::AppendError;
use dns_wire::Composer;
use std::alloc::Global;

impl<T: Composer> Builder<T, AtAdditional> {
    /// Appends an OPT record (RFC 6891 section 6.1.1). The closure sets its fields and options on a
    /// new `OptBuilder`, which has a copy of the header. On success the header takes the rcode of
    /// that copy.
    ///
    /// Returns the error of the closure, or else that of `push`. Nothing changes on error.
    pub fn opt<F: FnOnce(&mut OptBuilder) -> Result<(), AppendError>>(
        &mut self,
        alloc: Global,
        gather: F,
    ) -> Result<(), PushError>
        requires { F.IsAlwaysCallable gather }
        ensures pushes { InEach InAdditional T.rule self.old (λ s.
            PushesOpt T.capacity T.grows T.rule (FnOnceReturnsAtMut F.FnOnce gather) s self.new
            result) }
        ensures refused { OnErr result (self.new ≡ self.old) }
    {
        let mut gathered = OptBuilder::new(alloc, self.header());
        gather(&mut gathered)?;
        self.push_opt(&gathered)
    }

    /// Appends the OPT record of `opt`. On success the header takes the rcode of its copy.
    ///
    /// Returns what `push` returns. Nothing changes on error.
    pub fn push_opt(&mut self, opt: &OptBuilder) -> Result<(), PushError>
        ensures pushes { InEach InAdditional T.rule self.old (λ s. PushesOptRecord T.capacity
            T.grows T.rule (gathered opt.now) s self.new result) }
        ensures refused { OnErr result (self.new ≡ self.old) }
    {
        self.push(record_of(opt))?;
        self.set_header(with_rcode(self.header(), opt.header().rcode()));
        Ok(())
    }
}

/// The OPT record with the fields and options of `builder`.
fn record_of(builder: &OptBuilder) -> Record<Name<&'static [u8]>, Opt<&[u8]>>
    ensures owner { name_labels (owner_of result) ≡ [] }
    ensures class { class_of result ≡ (gathered builder.now).fields.udp_payload_size }
    ensures ttl { ttl_of result ≡ ttl_in (gathered builder.now).fields }
    ensures options { opt_octets (data_of result) ≡ encode_options (gathered builder.now).options }
    ensures is_gathered { IsGathered (gathered builder.now) }
{
    let header = builder.opt_header();
    let ttl = Ttl::from_secs(header.ttl());
    let data = Opt::from_octets(builder.option_octets()).unwrap();
    Record::new(Name::root_slice(), header.class(), ttl, data)
}

/// Sets the rcode and changes nothing else.
pub(crate) fn with_rcode(header: Header, rcode: Rcode) -> Header
    ensures { fields result ≡ with_rcode rcode (fields header) }
{
    let mut changed = header;
    changed.set_rcode(rcode);
    changed
}
