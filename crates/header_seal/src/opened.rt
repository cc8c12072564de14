//! An opened header.
use algorithm_names::Algorithm;
use kdf_hmac::Prf;
use vc_header::Fields;
use vc_layout::Slot;

/// An opened header: the candidate that is valid, and its fields.
#[derive(Clone, Copy)]
pub struct Opened {
    pub slot: Slot,
    pub prf: Prf,
    pub algorithm: Algorithm,
    pub fields: Fields,
}
