// Helper functions: what a CALL of source 0 calls (RFC 9669, section 4.3.1; bpf-helpers(7)).

/// A helper function that the machine has, with its number (`linux/bpf.h`).
#[derive(Copy, Clone, Debug, PartialEq, Eq)]
pub enum Helper {
    /// `bpf_map_lookup_elem(map, key)`
    Lookup = 1,
    /// `bpf_map_update_elem(map, key, value, flags)`
    Update = 2,
    /// `bpf_map_delete_elem(map, key)`
    Delete = 3,
    /// `bpf_ktime_get_ns()`
    Time = 5,
    /// `bpf_redirect(ifindex, flags)`
    Redirect = 23,
}

impl Helper {
    ghost use Rattle.std.specs.Prelude.{◌≡◌, IfSome, is_some, true};
    ghost use Rattle.bpf_isa.specs.Helpers.{helper_number, helper_of};
    ghost use Rattle.bpf_isa.specs.declared.helper.Helper.{Helper};

    /// The helper of a number, if there is one.
    pub fn of(id: i64) -> Option<Helper>
        ensures value { result ≡ helper_of id }
        ensures some { IfSome result (λ h. helper_number h ≡ id) }
        ensures only { (h : Helper) → helper_number h ≡ id → result ≡ Some h }
    {
        match id {
            1 => Some(Helper::Lookup),
            2 => Some(Helper::Update),
            3 => Some(Helper::Delete),
            5 => Some(Helper::Time),
            23 => Some(Helper::Redirect),
            _ => None,
        }
    }

    /// The helper of a number that one has.
    pub fn known(id: i64) -> Helper
        requires { is_some (helper_of id) ≡ true }
        ensures { helper_of id ≡ Some result }
    {
        match Helper::of(id) {
            Some(helper) => helper,
            None => unreachable!(),
        }
    }

    /// Its number, the immediate number of a call.
    pub fn number(self) -> i64
        ensures { result ≡ helper_number self }
    {
        self as i64
    }
}
