//! A quest is a space.

use crate::quest::{OrderFault, Quest};
use graph_search::{Followed, Space, Unanswered};
use order_model::{Move, Note};

impl Space for Quest {
    type Label = Move;

    type Key = [u8; 32];

    type Note = Note;

    type Fault = OrderFault;

    ghost use Rattle.order_model.specs.Moves.{Point};
    ghost use Rattle.order_model.specs.Searches.{IsNoteOf};
    ghost use Rattle.order_model.specs.Asking.{asked_of};
    ghost use Rattle.order_search.specs.Faults.{IsFault};
    ghost use Rattle.order_search.specs.Quests.{IsKeyOf, first_node, next_node, searching_of};
    ghost use Rattle.order_search.specs.declared.subject.Subject.{Subject};

    ghost Setting = { Subject };

    ghost setting = { λ quest. quest.subject };

    ghost Node = { Point };

    ghost start = { λ subject. first_node (searching_of subject) };

    ghost after = { λ subject. next_node (searching_of subject) };

    ghost IsKey = { λ subject. IsKeyOf (searching_of subject) };

    ghost IsNote = { λ subject. IsNoteOf (asked_of subject.orders) };

    ghost IsFault = { IsFault };

    fn first(&mut self) -> Result<[u8; 32], Unanswered<OrderFault>> {
        let mut run = self.arrive(&[])?;
        let key = self.key(&mut run);
        run.close();
        key
    }

    fn successors(
        &mut self,
        path: &[Move],
    ) -> Result<Followed<Move, [u8; 32], Note>, Unanswered<OrderFault>> {
        let mut run = self.arrive(path)?;
        let sight = match self.look(path, &mut run) {
            Ok(sight) => sight,
            Err(fault) => {
                run.close();
                return Err(fault);
            }
        };
        let preempted = run.trail.preempted;
        let mut edges = self.edges(path, run, &sight.choices)?;
        self.add_preempted(path, preempted, &mut edges)?;
        let edges = self.in_order(path, edges)?;
        Ok(Followed {
            edges,
            note: sight.note,
        })
    }
}
