//! The system that a node's parts make.

ghost use Rattle.std.specs.Prelude.{List};
ghost use Rattle.load_model.specs.Loading.{Loadable};
ghost use Rattle.node_model.specs.Nodes.{IsSoundNode, Parts, Represents};
ghost use Rattle.node_model.specs.Sound.{IsSound};
ghost use Rattle.node_model.specs.Systems.{System};

/// A node that stands for a sound system stands for the one that its own parts make, which is sound too.
pub fn nodes_are_sound()
    ensures { (n : Parts) (os : List Loadable) (s : System) → Represents n os s → IsSound s → IsSoundNode n os }
{}
