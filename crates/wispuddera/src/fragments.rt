//! Messages of DTLS, reassembled from their fragments, from `dtls_stream`.

pub use dtls_stream::{
    DEFAULT_LIMITS, EncryptedRecord, Event, Fragment, FragmentError, Fragments, Limits, Message,
    Messages, laws, parse_dtls_fragment, read_all, read_fragments,
};
