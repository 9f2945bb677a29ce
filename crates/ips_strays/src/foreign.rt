//! Directories with names that are no paths, which would go unsaved.
//!
//! In reading order: where something goes (`gone`), what stands where such a directory may (`asking`), and the first of them (`losing`).
mod asking;
mod gone;
mod losing;

pub use losing::foreign;
