//! Laws on tables of connections.

ghost use Rattle.machine_model.specs.Connections.{Connections};
ghost use Rattle.conn_table.specs.Laws.{AnswersFor, Follows, RingsAreFound, RingsAreDistinct, TablesAreSmall};

/// The table of connections answers as the connections do: their specs, the ring connections of domains, the least
/// free id, the next id and how many there are.
pub fn answers_for_connections()
    ensures { (conns : Connections) → AnswersFor conns }
{}

/// A connection that is put among connections, or removed, is so in their table.
pub fn follows_connections()
    ensures { (conns : Connections) → Follows conns }
{}

/// The ring connection of a domain is the connection that is the ring of that domain. There is no other.
pub fn rings_are_found()
    ensures found { RingsAreFound }
    ensures distinct { RingsAreDistinct }
{}

/// A table of rings of domids up to 32751 has at most one connection a domid besides its sockets. So there is a free id
/// as long as there are no more than 65536 sockets.
pub fn tables_are_small()
    ensures { TablesAreSmall }
{}
