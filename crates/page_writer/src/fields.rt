// The fields, as numbers that are given: whether each has room in its bits, and whether their values are permitted.
ghost use Rattle.std.specs.Prelude.{◌≡◌, ltb};
ghost use Rattle.page_writer.specs.Chosen.{values_of};
ghost use Rattle.page_writer.specs.Write.{format_given, fields_fit, fields_permitted, fields_good};

use crate::CHOSEN_COUNT;
use keypage::reading::permitted;
use keypage::sizes::{
    ALGORITHM, Bits, CEEM, CKOD, CKORL, CKORP, DECRYPTION, ENCRYPTION, FORMAT, LOCK, RDMC, SCOPE,
    SDK,
};

#[derive(Clone, Copy)]
pub(crate) struct Chosen {
    pub(crate) scope: u64,
    pub(crate) lock: u64,
    pub(crate) ceem: u64,
    pub(crate) rdmc: u64,
    pub(crate) sdk: u64,
    pub(crate) ckod: u64,
    pub(crate) ckorp: u64,
    pub(crate) ckorl: u64,
    pub(crate) encryption: u64,
    pub(crate) decryption: u64,
    pub(crate) algorithm: u64,
    pub(crate) format: u64,
}

impl From<[u64; CHOSEN_COUNT]> for Chosen {
    ghost from_gives = { λ v chosen. values_of chosen ≡ v };

    fn from(v: [u64; CHOSEN_COUNT]) -> Chosen {
        let [
            scope,
            lock,
            ceem,
            rdmc,
            sdk,
            ckod,
            ckorp,
            ckorl,
            encryption,
            decryption,
            algorithm,
            format,
        ] = v;
        Chosen {
            scope,
            lock,
            ceem,
            rdmc,
            sdk,
            ckod,
            ckorp,
            ckorl,
            encryption,
            decryption,
            algorithm,
            format,
        }
    }
}

fn fits(n: u64, field: Bits) -> bool
    ensures { result ≡ ltb n field.span }
{
    n < field.span as u64
}

impl Chosen {
    #[tactic(auto, unfolding(crate::specs::Write::fields_fit))]
    fn fit(self) -> bool
        ensures { result ≡ fields_fit (values_of self) }
    {
        fits(self.scope, SCOPE)
            & fits(self.lock, LOCK)
            & fits(self.ceem, CEEM)
            & fits(self.rdmc, RDMC)
            & fits(self.sdk, SDK)
            & fits(self.ckod, CKOD)
            & fits(self.ckorp, CKORP)
            & fits(self.ckorl, CKORL)
            & fits(self.encryption, ENCRYPTION)
            & fits(self.decryption, DECRYPTION)
            & fits(self.algorithm, ALGORITHM)
            & fits(self.format, FORMAT)
    }

    #[tactic(auto, unfolding(crate::specs::Write::fields_permitted))]
    fn permitted(self) -> bool
        ensures { result ≡ fields_permitted (values_of self) }
    {
        permitted(
            self.scope as usize,
            self.encryption as usize,
            self.decryption as usize,
            self.algorithm as usize,
        )
    }

    // 3 of the fields alone: one is too wide for its bits, or not permitted.
    pub(crate) fn good(self) -> bool
        ensures { result ≡ fields_good (values_of self) }
    {
        self.fit() & self.permitted()
    }

    pub(crate) fn format(self) -> usize
        ensures { result ≡ format_given (values_of self) }
    {
        self.format as usize
    }
}
