// The list of the standing units, and the variables of what questions name.
ghost use Rattle.std.specs.Prelude.{◌≡◌, map};
ghost use Rattle.books.specs.Books.{Book, standing, list_of, table};
ghost use Rattle.books.specs.Listing.{listed_words};
ghost use Rattle.standing.specs.Lists.{list_in, listed_in, owners_in};
ghost use Rattle.standing.specs.States.{units_of, LaidOut, owned_name, name_in_entry};

use super::StandingUnits;
use crate::list::UnitList;
use crate::place::place_units;

impl StandingUnits {
    // Makes the list, and lays out the names as it has them.
    pub fn lay_out(&mut self, list: &mut UnitList)
        ensures same { units_of self.new ≡ units_of self.old }
        ensures lists { list_in list.new ≡ list_of (standing (units_of self.old)) }
        ensures origins { listed_in list.new ≡ listed_words (units_of self.old) }
        ensures owners { map (owned_name (units_of self.old)) (owners_in list.new) ≡ map name_in_entry (table (standing (units_of self.old))) }
        ensures laid { LaidOut self.new }
        ensures book { Book (standing (units_of self.old)) }
    {
        list.clear();
        self.names.unplace_all();
        place_units(&mut self.names, &self.texts, list);
        list.fill(&self.names, &self.texts);
    }
}
