//! In which state a request is for a command about it.

ghost use Rattle.std.specs.Prelude.{◌≡◌};
ghost use Rattle.nm_plans.specs.States as states;

use crate::PlanCommand;
use crate::requests::requests::Request;

impl Request {
    /// A request that receives in parts.
    fn is_split_receive(&self) -> bool
        ensures { result ≡ states.is_split_receive self.now }
    {
        self.parts.is_some() && !self.is_sending()
    }

    /// Part k is ready since the start.
    fn is_ready(&self, k: u8) -> bool
        ensures { result ≡ states.is_ready self.now k }
    {
        let part = usize::from(k);
        part < self.ready.len() && self.ready[part]
    }

    /// Every part is ready since the start.
    fn all_ready(&self) -> bool
        ensures { result ≡ states.all_ready self.now }
    {
        self.ready
            .iter()
            .take(usize::from(self.part_count()))
            .all(|ready| *ready)
    }

    /// It is in a state for a command about it.
    pub fn allows(&self, command: &PlanCommand) -> bool
        ensures { result ≡ states.allows command.now self.now }
    {
        match command {
            PlanCommand::Fill { .. } => !self.active && self.is_sending(),
            PlanCommand::Start { .. } => !self.active,
            PlanCommand::Ready { k, .. } => {
                self.is_split_send() && self.active && *k < self.part_count() && !self.is_ready(*k)
            }
            PlanCommand::Arrived { k, .. } => self.is_split_receive() && *k < self.part_count(),
            PlanCommand::Wait { .. } => self.active && (!self.is_split_send() || self.all_ready()),
            _ => true,
        }
    }
}
