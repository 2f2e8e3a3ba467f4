//! What follows from the definitions, for every value.
ghost use Rattle.init_cookies.specs.Laws.{CookiesComeBack};

/// A cookie that comes back by its route within two minutes, while its key or the next one is in use, gives the opening
/// for which it was written.
pub fn cookies_come_back()
    ensures { CookiesComeBack }
{}
