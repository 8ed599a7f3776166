// The occupancy map: one bit a place.
ghost use Rattle.std.specs.Prelude.{◌≡◌, ◌<◌, true, sum_by, ◌==◌, count_ones};
ghost use Rattle.nets.specs.Layout.{bit};
ghost use Rattle.nets.specs.Meaning.{Content, net_of, cells_below};

/// Whether a cell stands in the place.
pub fn is_occupied(map: &[u8; 128], place: u16) -> bool
    ensures bit { result ≡ (bit map.now place == 1) }
    ensures low { result ≡ true → place < 1024 }
{
    let byte = place as usize / 8;
    byte < 128 && (map[byte] >> (place % 8)) % 2 == 1
}

/// How many bits are set: the live cells of every table with this map.
pub fn count_set(map: &[u8; 128]) -> u16
    ensures bits { result ≡ sum_by count_ones map.now }
    ensures cells { (c : Content) → c.occupied ≡ map.now → result ≡ cells_below (net_of c) 1024 }
{
    map.iter().map(|byte| byte.count_ones() as u16).sum()
}
