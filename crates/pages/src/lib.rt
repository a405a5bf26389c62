// Pages: the walk from the fields of a file to line operations, which a pen shows. The walk goes over any bytes.

#![tactic(auto)]

pub mod frame;
pub mod leaves;
pub mod marks;
pub mod quick;
pub mod walk;
pub mod whole;
