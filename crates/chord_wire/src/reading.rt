//! Reading bodies from left to right. A reader copies nothing before it has checked the whole body.

pub mod answer_body;
pub mod fields;
pub mod frame;
pub mod request_body;
pub mod session_answer_body;
pub mod session_body;
pub mod values;
