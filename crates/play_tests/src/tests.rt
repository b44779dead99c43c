mod long_scripts;
mod played_scripts;
mod refused_scripts;
mod taken_records;
mod waiting_scripts;

use mrt_wire::Route;
use rib_store::RadixStore;
use std::rc::Rc;

/// The store of scripts, that of the program.
type Routes = RadixStore<Rc<Route>>;
