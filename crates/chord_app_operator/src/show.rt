//! What is answered.

mod answer_count;
mod front_page;
mod holder_json;
mod inserts;
mod json;
mod members;
mod metric;
mod metrics;
mod node_count;
pub(crate) mod replies;
mod ring_count;
mod share;
mod sight_json;
mod table;

pub use holder_json::holder_value;
pub use inserts::pair_lines;
pub use json::{ToJson, array, id_text, optional};
pub use metrics::metrics_text;
pub use share::{Stretch, hundredths};
pub use sight_json::ring_text;
pub use table::ring_table;
