// Whether a room holds what its readings and stored book say: each part is worked out anew and compared.
#![tactic(auto)]

pub mod anew;
pub mod compare;
pub mod index;
pub mod memories;
pub mod slots;
