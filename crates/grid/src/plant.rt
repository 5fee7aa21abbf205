use model::picture::Picture;
use plants::network::Network;

// A network with the facts that hold at the start: the closed switches and the placed earths.
// A type for each kind of plant, since each answers the questions of a plant by its own table.
#[derive(Clone, Copy)]
pub struct NetworkPlant {
    pub network: Network,
    pub first: Picture,
}
