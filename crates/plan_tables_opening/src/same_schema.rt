// Whether tables are alike.

pub(crate) mod tables;
mod terms;
mod values;
