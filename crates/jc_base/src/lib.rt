//! What all other crates use: bytes, devices, and the texts of the Java Virtual Machine.
//!
//! [`Cursor`] reads bytes. [`Input`] and [`Output`] are the traits of devices, over memory ([`MemInput`],
//! [`MemOutput`]) or over std ([`StdInput`], [`StdOutput`]). [`ByteMap`] is an ordered map with byte strings as keys.
//! Other modules decide modified UTF-8, names, descriptors ([`FieldDesc`], [`MethodDesc`]) and signatures.
//!
//! The contracts refer to the grammars of the JVMS (4.2, 4.3, 4.4.7, 4.7.9.1). [`NoMemory`] is the error of functions
//! that fail only when an allocation fails.
#![tactic(auto)]

pub mod byte_map;
mod code_units;
mod cursor;
mod descriptors;
mod device;
mod mem_devices;
mod modified_utf8;
mod names;
mod no_memory;
mod signatures;
mod std_devices;
mod writing;

pub use byte_map::ByteMap;
pub use code_units::{Units, units_end_at_the_first_wrong_spelling};
pub use cursor::Cursor;
pub use descriptors::{
    FieldDesc, MethodDesc, Params, descriptor_examples, descriptors_are_decided,
    descriptors_are_determined, descriptors_are_well_spelled,
};
pub use device::{DeviceFault, Input, Output};
pub use mem_devices::{MemInput, MemOutput};
pub use modified_utf8::{
    UnitsError, ascii_stands_for_itself, bytes_are_in_range, check_units, first_unit_is_spelled,
    spelling_examples, units, units_are_determined,
};
pub use names::{
    is_class_name, is_method_name, is_unqualified, name_examples, names_are_well_spelled,
    texts_are_decided,
};
pub use no_memory::NoMemory;
pub use signatures::{
    SigKind, check_signature, signature_examples, signatures_are_decided,
    signatures_are_well_spelled,
};
pub use std_devices::{StdInput, StdOutput};
pub use writing::write_all;
