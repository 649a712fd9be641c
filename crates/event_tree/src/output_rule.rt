use crate::ListOf;
use wire_base::Host;

/// The peers, 1 to 16.
pub type Hosts = ListOf<Host>;

/// Where events go, and in what portions (Filebeat reference, Logstash output).
#[derive(Debug, Drop)]
pub struct OutputRule {
    pub hosts: Hosts,
    /// 1 to 16.
    pub workers: u32,
    /// The most events of one window, 1 to 65,536.
    pub bulk_max_size: u32,
    /// The most windows of one link that wait for their acknowledgement, 1 to 8.
    pub pipelining: u32,
    /// How long a peer may be silent, 1 to 3,600,000 milliseconds.
    pub timeout: u64,
    /// How many failures in a row end the run, 1 to 1,000.
    pub attempts: u32,
}
