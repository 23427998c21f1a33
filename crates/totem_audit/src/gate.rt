//! Notification of the jobs of an audit.

/// Receives notifications: each thread notifies the gate before and after a job that it does, and again if the job has to be done
/// again. Jobs are counted from 1, in the order of their configurations.
pub trait Gate: Sync {
    fn before(&self, job: u32);

    fn after(&self, job: u32);
}

/// A gate that lets every job pass.
#[derive(Clone, Copy, Debug)]
pub struct OpenGate;

impl Gate for OpenGate {
    fn before(&self, _job: u32) {}

    fn after(&self, _job: u32) {}
}
