//! Workers of one end of the data channel: the link reader, which dials and hears what comes, the
//! link writer, which sends what the end emits, and the resend worker, which serves the
//! retransmission timer. Each has a public call for one turn, and is a job that repeats it until the
//! end is closed.
#![tactic(auto)]

mod arrival;
pub mod laws;
mod link_reader;
mod link_setting;
mod link_writer;
mod read_state;
mod reader_job;
mod reply;
mod resend_job;
mod resender;
#[cfg(test)]
mod tests;
mod worker_end;
mod writer_job;

pub use link_reader::LinkReader;
pub use link_setting::LinkSetting;
pub use link_writer::LinkWriter;
pub use read_state::{ReadEnd, ReadState};
pub use reader_job::{LINK_READER, ReaderDone, ReaderJob};
pub use reply::Reply;
pub use resend_job::{RESEND, ResendDone, ResendJob};
pub use resender::Resender;
pub use worker_end::{REST_MILLIS, WorkerEnd};
pub use writer_job::{LINK_WRITER, WriterDone, WriterJob};
