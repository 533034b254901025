//! What the texts of names and values mean, by what they spell: characters, labels, fields.
//!
//! The crates below read a text byte by byte, and their definitions say it so. The laws here say
//! that what is read is what the text spells, and that a fault is the first. There is no code.
#![tactic(auto)]

mod laws;

pub use laws::{
    faults_as_told, faults_stand_first, fields_as_found, fields_as_spelled, labels_as_spelled,
    names_as_spelled, numbers_as_spelled, one_fault_of_a_text, one_list_of_fields,
    one_name_of_a_text, one_string_of_a_text, strings_as_spelled, values_as_spelled,
    written_text_is_joined,
};
