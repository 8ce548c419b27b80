// Where the links of parties lead.

ghost use Rattle.std.specs.Prelude.{◌≡◌};
ghost use Rattle.js_crossing.specs.Leads.{leads_by};

use js_text::text::Text;

/// A link of a party, and the party to which it leads.
#[derive(Drop)]
pub struct Lead {
    pub link: Text,
    pub party: u32,
}

/// The party to which the first lead with this link leads.
pub fn lead_of(leads: &[Lead], link: &Text) -> Option<u32>
    ensures { result ≡ leads_by leads.now link.now }
{
    for lead in leads {
        if link.is_same(&lead.link) {
            return Some(lead.party);
        }
    }
    None
}
