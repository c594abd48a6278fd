// The numbers of document 01's key pages that have a name, for reading and for writing. The page: where its words and bytes stand, and what they may hold.
ghost use Rattle.std.specs.Prelude.{◌<◌};

use descriptors::list::STRICT_BY_DEFAULT;

pub const CODE_AT: usize = 0;

pub const PAGE_CODE: usize = 0x0010;

pub const PAGE_LENGTH_AT: usize = 2;

// PAGE LENGTH is the total less this.
pub const BEFORE_LENGTH: usize = 4;

pub const ZERO_AT: usize = 10;

pub const ZERO_SIZE: usize = 8;

pub const KEY_LENGTH_AT: usize = 18;

// The KEY part.
pub const KEY_AT: usize = 20;

pub const PAGE_MAX: usize = 4096;

// Whether a page's list is opened strict: it takes the default (document 02, No. 7).
pub const PAGE_STRICT: bool = STRICT_BY_DEFAULT;

// A field: some bits of a byte of the page. The lowest of them counts `weight` there, and they have `span` values.
#[derive(Clone, Copy)]
pub struct Bits {
    pub in_byte: usize,
    pub weight: usize,
    pub span: usize,
    ghost counts: { (0 < weight) × (0 < span) },
}

pub const SCOPE: Bits = Bits {
    in_byte: 4,
    weight: 1 << 5,
    span: 1 << 3,
};

pub const ZERO_BITS: Bits = Bits {
    in_byte: 4,
    weight: 1 << 1,
    span: 1 << 4,
};

pub const LOCK: Bits = Bits {
    in_byte: 4,
    weight: 1,
    span: 1 << 1,
};

pub const CEEM: Bits = Bits {
    in_byte: 5,
    weight: 1 << 6,
    span: 1 << 2,
};

pub const RDMC: Bits = Bits {
    in_byte: 5,
    weight: 1 << 4,
    span: 1 << 2,
};

pub const SDK: Bits = Bits {
    in_byte: 5,
    weight: 1 << 3,
    span: 1 << 1,
};

pub const CKOD: Bits = Bits {
    in_byte: 5,
    weight: 1 << 2,
    span: 1 << 1,
};

pub const CKORP: Bits = Bits {
    in_byte: 5,
    weight: 1 << 1,
    span: 1 << 1,
};

pub const CKORL: Bits = Bits {
    in_byte: 5,
    weight: 1,
    span: 1 << 1,
};

pub const ENCRYPTION: Bits = Bits {
    in_byte: 6,
    weight: 1,
    span: 1 << 8,
};

pub const DECRYPTION: Bits = Bits {
    in_byte: 7,
    weight: 1,
    span: 1 << 8,
};

pub const ALGORITHM: Bits = Bits {
    in_byte: 8,
    weight: 1,
    span: 1 << 8,
};

pub const FORMAT: Bits = Bits {
    in_byte: 9,
    weight: 1,
    span: 1 << 8,
};

// The greatest values that are permitted.
pub const SCOPE_MAX: usize = 2;

pub const ENCRYPTION_MAX: usize = 2;

pub const DECRYPTION_MAX: usize = 3;

pub const ALGORITHM_MAX: usize = 2;

// The formats of the KEY part.
pub const PLAIN_FORMAT: usize = 0x00;

pub const REFERENCE_FORMAT: usize = 0x01;

pub const WRAPPED_FORMAT: usize = 0x04;

pub const KEY_SIZE: usize = 32;

pub const REFERENCE_MIN: usize = 9;

pub const NAME_MAX: usize = 32;

// Format 04h: where its words and its identifier stand.
pub const KEK_TYPE_AT: usize = 0;

pub const IDENTIFIER_LENGTH_AT: usize = 2;

pub const IDENTIFIER_AT: usize = 4;
